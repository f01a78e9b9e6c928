//! How the rows of each table are kept: the data of a table as one value (`specs/kept/Cells.antt`), of which its two
//! texts follow from its columns (`specs/kept/Texts.antt`), and the one law that each meets
//! (`specs/kept/Meanings.antt`). No code of this part runs.
//!
//! A table stands in a schema whatever other tables are there (`specs/kept/Schemas.antt`), so that its law holds in
//! every layout that has it, and at the points between two.
//!
//! # What is promised
//!
//! - Over every schema that has a table its two texts show all of its rows and add one; rows with the same values are
//!   one; rows shown in its order ascend by its key: `laws::tables_are_lawful`. `mx_tables` asks it of each type of
//!   rows.
//! - Layout 1 has the permanent tables and its own; layouts 2 and 3 and each schema on the way to them have those that
//!   stand there, with the indexes that a file has: `laws::layout_1_has_its_tables`, `laws::layout_2_has_its_tables`,
//!   `laws::layout_3_has_its_tables`, `laws::points_have_their_tables`, `laws::later_points_have_their_tables`.

pub mod laws;
