// The names of a script: questions 7 to 11, each put to all rows before the next, and the
// numbering of names, cells first. Names are compared by their bytes, which stand in the text.
pub(crate) mod ask;
pub(crate) mod find;
pub(crate) mod roles;
pub(crate) mod table;
