//! What holds of the replies of the commands, and of commands one after the other, as contracts of
//! functions that do nothing.
#![tactic(auto)]

mod batch;
mod laws;

pub use batch::batch_laws;
pub use circom_files::check_laws;
pub use laws::{
    audit_laws, check_accepts_witnesses, compile_laws, compile_witness_check, determine_confirm,
    one_reply, prove_public_audit, witness_laws,
};
