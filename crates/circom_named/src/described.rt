use circom_files::Witness;
use items::Items;
use sym_file::SymLine;

/// A witness, and what is said of signals.
pub struct Described {
    pub witness: Witness,
    pub lines: Items<SymLine>,
}

impl Drop for Described {
    fn drop(self) {
        let Described {
            witness: _witness,
            lines: _lines,
        } = self;
    }
}
