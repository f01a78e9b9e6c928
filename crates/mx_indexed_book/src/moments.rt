//! What is kept of a book, made of the rows of its registers by moments: the sectors of each aircraft by landing beside what was flown
//! up to each (`landings`), the life of an item up to any moment (`flown`), the accomplishments and last bases (`done`), and the cycles
//! at which defects were found (`found`).

pub mod done;
pub mod flown;
pub mod found;
pub mod landings;
pub mod lives;
pub mod said;
