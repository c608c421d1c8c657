// A text in the midst of its declarations: where reading stands, and the tables so far.
#![tactic(auto)]

use block_tables::Tables;
use cursor::Cursor;

#[derive(Clone, Copy)]
pub struct ParseState {
    pub cursor: Cursor,
    pub tables: Tables,
}
