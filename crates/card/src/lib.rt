// The card's public calls, each with its whole rule and no `requires`. The three demands are proved of these rules in proofs/.
#![tactic(auto)]

pub use adding::{add, add_to};
pub use comparing::{compare, compare_from};
pub use profile::{read, write};
pub use receiving::{ask, feed, receive};
pub use sending::{send, send_symbol};
