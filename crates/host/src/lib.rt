// The calls for hosts written in C or Rust. A shelf value is lent as bytes; a slice passes as a pointer and a length; a call
// gives 0 or the refusal's number.
#![tactic(auto)]

pub mod losing;
mod numbers;
pub mod places;
pub mod sheet;
pub mod showing;
pub mod sizes;
pub mod stored;
mod value;

// The number of `Refusal::OtherBuffer`, as C gets it: a lent buffer that has not the answer's length.
const OTHER_BUFFER: usize = 13;
