ghost use Rattle.std.specs.Prelude.{◌≡◌, IfOk, IsErrOf, ⊤};
ghost use Rattle.out_io.specs.Contents.{bytes_of};
ghost use Rattle.out_io.specs.declared.fault.IoFault.TheVariants.{Failed};
ghost use Rattle.circom_gold.specs.Witness.{one_file};

use out_io::{History, IoFault, Store};
use std::alloc::Global;

/// A store of one file, under the name `generated`. There is no room for others.
#[derive(Drop)]
pub struct OneFile {
    pub text: Vec<u8>,
    pub history: History,
}

fn found_in(alloc: Global, text: &[u8], name: &str) -> Result<Option<Vec<u8>>, IoFault>
    ensures found { IfOk result (λ found. bytes_of found ≡ one_file text.now name.now) }
    ensures cause { ¬ IsErrOf result Failed }
{
    if name == "generated" {
        Ok(Some(Vec::from_slice(alloc, text)?))
    } else {
        Ok(None)
    }
}

impl Store for OneFile {
    ghost may_hold = { λ s files. files ≡ one_file s.text.items };

    ghost calls = { λ s. s.history.calls };

    ghost faults = { λ s. 0 };

    ghost never_fails = { λ s. ⊤ };

    fn read(&mut self, alloc: Global, name: &str) -> Result<Option<Vec<u8>>, IoFault> {
        let found = found_in(alloc, self.text.as_slice(), name);
        self.history.add_read(name, found)
    }

    fn write(&mut self, _alloc: Global, name: &str, bytes: &[u8]) -> Result<(), IoFault> {
        self.history
            .add_write(name, bytes, Err(IoFault::OutOfMemory))
    }
}
