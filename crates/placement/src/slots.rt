// Slots: the data of a stripe stand in address order at the positions of its tuple, the parity's left out (document 01, "Where a
// unit stands").
ghost use Rattle.std.specs.Prelude.{◌≡◌, ◌≢◌, ◌+◌, ◌^◌, ◌<◌};
ghost use Rattle.placement.specs.Slots.{position_of, index_of};

// The position of data j.
pub fn position_of(parity: usize, j: usize) -> usize
    requires { j + 1 < 2 ^ 64 }
    ensures { result ≡ position_of parity j }
{
    if j < parity { j } else { j + 1 }
}

// Which data stands at a position other than the parity's.
pub fn index_of(parity: usize, position: usize) -> usize
    requires { position ≢ parity }
    ensures { result ≡ index_of parity position }
{
    if position < parity {
        position
    } else {
        position - 1
    }
}
