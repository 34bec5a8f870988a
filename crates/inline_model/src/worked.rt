//! Rows that the prover itself computes from the definitions. Each function has an empty body: its
//! contract is the rows. The characters are a (97, one byte), é (233, two bytes), € (8364, three
//! bytes) and the G clef (119070, four bytes).

pub mod cells;
pub mod edits;
pub mod encodings;
pub mod joins;
pub mod laws;
pub mod needs;
pub mod places;
pub mod room;
pub mod runs;
pub mod state;
pub mod values;
