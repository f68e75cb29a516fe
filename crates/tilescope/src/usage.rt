ghost use Rattle.std.specs.Prelude.{◌≡◌, ◌≤◌, ◌+◌, ◌++◌, OnOk, IfOk, decimal, length};
ghost use Rattle.tilescope.specs.Usage.{option_text, basis_fault_text, fault_text, usage_line};

use command_words::{OptName, WordFault};
use itoa::Buffer;
use perm_core::BasisFault;
use std::alloc::{AllocError, Global};

/// The name of an option.
fn option_name(name: OptName) -> &'static [u8]
    ensures { result.now ≡ option_text name }
{
    match name {
        OptName::Workers => b"workers",
        OptName::Budget => b"budget",
        OptName::Terms => b"terms",
        OptName::Pack => b"pack",
        OptName::Number => b"number",
    }
}

/// Appends a word and a place or a number.
pub(crate) fn put_place(out: &mut Vec<u8>, word: &[u8], at: u64) -> Result<(), AllocError>
    ensures text { OnOk result (out.new.items ≡ out.old.items ++ (word.now ++ decimal at)) }
    ensures short { OnOk result (length out.new.items ≤ length out.old.items + (length word.now + 40)) }
{
    let mut buffer = Buffer::new();
    out.extend_from_slice(word)?;
    out.extend_from_slice(buffer.format(at).as_bytes())
}

/// Appends what is wrong with a basis.
fn put_basis_fault(out: &mut Vec<u8>, fault: &BasisFault) -> Result<(), AllocError>
    ensures { OnOk result (out.new.items ≡ out.old.items ++ basis_fault_text fault.now) }
{
    match fault {
        BasisFault::Empty => out.extend_from_slice(b"empty"),
        BasisFault::BadByte { at } => put_place(out, b"byte ", *at),
        BasisFault::Repeated { at } => put_place(out, b"repeated ", *at),
        BasisFault::TooLong { at } => put_place(out, b"long ", *at),
        BasisFault::TooMany => out.extend_from_slice(b"many"),
        BasisFault::Memory => Ok(()),
    }
}

/// Appends what is refused.
fn put_fault(out: &mut Vec<u8>, fault: &WordFault) -> Result<(), AllocError>
    ensures { OnOk result (out.new.items ≡ out.old.items ++ fault_text fault.now) }
{
    match fault {
        WordFault::Words => out.extend_from_slice(b"words"),
        WordFault::Opt(name) => {
            out.extend_from_slice(b"option ")?;
            out.extend_from_slice(option_name(*name))
        }
        WordFault::Basis(fault) => {
            out.extend_from_slice(b"basis ")?;
            put_basis_fault(out, fault)
        }
        WordFault::Memory => Ok(()),
    }
}

/// The line that says why words are refused.
pub(crate) fn usage_line(alloc: Global, fault: &WordFault) -> Result<Vec<u8>, AllocError>
    ensures { IfOk result (λ line. line.items ≡ usage_line fault.now) }
{
    let mut out = Vec::from_slice(alloc, b"usage ")?;
    put_fault(&mut out, fault)?;
    out.extend_from_slice(b"\n")?;
    Ok(out)
}
