//! Laws about choices, files and certificates, and about what two files prove. A law is a function that does nothing and whose clause is a theorem.

mod answers;
mod files;

pub use answers::one_answer;
pub use files::{accepted, forced, one_cert, one_shape};
