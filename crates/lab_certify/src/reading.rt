//! Reading a certificate.
ghost use Rattle.std.specs.Prelude.{◌≡◌, ◌≤◌, [], OnOk, IfOk, IfErr, IfSome, Ok, Err, Some, codes, length};
ghost use Rattle.std.specs.Option.{option_map};
ghost use Rattle.std.specs.List.{list_all};
ghost use Rattle.std.specs.Str.{bytes_eq};
ghost use Rattle.mx_io.specs.declared.limits.TheConstants.{MAX_FILE_BYTES};
ghost use Rattle.mx_plans.specs.Files.{lines_in, marks_after};
ghost use Rattle.lab_certify.specs.Texts.{words_in, with_marks, after_address, after_block, block_said, added, claims_after, is_hex, hash_in, rest_lines, after_header, claims_of, claims_in, IsRefused};
ghost use Rattle.lab_certify.specs.Said.{said_of};

use crate::certificate::{Certificate, Head};
use crate::fault::{CertificateError, CertificateFault, plan_fault};
use crate::words::{address_of, copies_said, first_word, is_hex};
use mx_plans::{PlanLine, read_marks};
use mx_text::split_line;
use std::alloc::{AllocError, Global};

/// What the line of a block says.
#[derive(Drop)]
pub(crate) struct BlockLine {
    pub(crate) head: Head,
    pub(crate) plan: PlanLine,
}

/// What a line says after its address and its copies, or its first fault.
fn with_marks(address: u32, copies: (u8, bool), line: &[u8]) -> Result<BlockLine, CertificateFault>
    ensures read { IfOk result (λ l. with_marks address copies (marks_after [] (words_in line.now)) ≡ Ok (Some (said_of l))) }
    ensures fault { IfErr result (λ fault. with_marks address copies (marks_after [] (words_in line.now)) ≡ Err fault) }
{
    match read_marks(line) {
        Ok(plan) => with_plan(address, copies, plan),
        Err(fault) => Err(plan_fault(fault)),
    }
}

/// What a line says with this plan, or that the plan has no items.
fn with_plan(
    address: u32,
    copies: (u8, bool),
    plan: PlanLine,
) -> Result<BlockLine, CertificateFault>
    ensures read { IfOk result (λ l. with_marks address copies (Ok plan.marks.items) ≡ Ok (Some (said_of l))) }
    ensures fault { IfErr result (λ fault. with_marks address copies (Ok plan.marks.items) ≡ Err fault) }
{
    if plan.marks.is_empty() {
        return Err(CertificateFault::NoPlan);
    }
    let (copies, squashes) = copies;
    let head = Head {
        address,
        copies,
        squashes,
    };
    Ok(BlockLine { head, plan })
}

/// What a line says after its address, or its first fault.
fn after_address(address: u32, line: &[u8]) -> Result<BlockLine, CertificateFault>
    ensures read { IfOk result (λ l. after_address address (words_in line.now) ≡ Ok (Some (said_of l))) }
    ensures fault { IfErr result (λ fault. after_address address (words_in line.now) ≡ Err fault) }
{
    let Some((word, rest)) = first_word(line) else {
        return Err(CertificateFault::BadCopies);
    };
    match copies_said(word) {
        Some(copies) => with_marks(address, copies, rest),
        None => Err(CertificateFault::BadCopies),
    }
}

/// What a line says after `block`, or its first fault.
fn after_block(line: &[u8]) -> Result<BlockLine, CertificateFault>
    ensures read { IfOk result (λ l. after_block (words_in line.now) ≡ Ok (Some (said_of l))) }
    ensures fault { IfErr result (λ fault. after_block (words_in line.now) ≡ Err fault) }
{
    let Some((word, rest)) = first_word(line) else {
        return Err(CertificateFault::BadAddress);
    };
    match address_of(word) {
        Some(address) => after_address(address, rest),
        None => Err(CertificateFault::BadAddress),
    }
}

/// What a line says of a block, if it has items, or its first fault.
fn block_said(line: &[u8]) -> Result<Option<BlockLine>, CertificateFault>
    ensures read { IfOk result (λ l. block_said (words_in line.now) ≡ Ok (option_map said_of l)) }
    ensures fault { IfErr result (λ fault. block_said (words_in line.now) ≡ Err fault) }
{
    let Some((word, rest)) = first_word(line) else {
        return Ok(None);
    };
    if word != b"block".as_slice() {
        return Err(CertificateFault::BadLine);
    }
    let said = after_block(rest)?;
    Ok(Some(said))
}

/// Takes what a line says.
fn add_block(certificate: &mut Certificate, said: Option<BlockLine>) -> Result<(), AllocError>
    ensures { OnOk result (claims_of certificate.new ≡ added (claims_of certificate.old) (option_map said_of said)) }
{
    match said {
        Some(BlockLine { head, plan }) => {
            certificate.heads.push(head)?;
            certificate.plans.push(plan)?;
            Ok(())
        }
        None => Ok(()),
    }
}

/// Takes what the lines of blocks say, the first of which is line 3.
fn add_lines(certificate: &mut Certificate, text: &[u8]) -> Result<(), CertificateError>
    requires { length text.now ≤ MAX_FILE_BYTES }
    ensures read { OnOk result (claims_after 3 (claims_of certificate.old) (lines_in text.now) ≡ Ok (claims_of certificate.new)) }
    ensures refused { IfErr result (IsRefused (claims_after 3 (claims_of certificate.old) (lines_in text.now))) }
{
    let mut left = text;
    let mut number = 3;
    'lines: loop {
        let (line, rest) = split_line(left);
        match block_said(line) {
            Ok(said) => {
                if add_block(certificate, said).is_err() {
                    return Err(CertificateError::Memory);
                }
            }
            Err(fault) => {
                return Err(CertificateError::Refused {
                    line: number,
                    fault,
                });
            }
        }
        let Some(rest) = rest else {
            return Ok(());
        };
        left = rest;
        number += 1;
    }
}

/// Whether each byte is one of the digits 0 to 9 and a to f.
fn are_hex(digits: &[u8]) -> bool
    ensures { result ≡ list_all is_hex digits.now }
{
    digits.iter().all(|c| is_hex(*c))
}

/// Whether the bytes are the name before a hash.
fn names_hash(name: &[u8]) -> bool
    ensures { result ≡ bytes_eq name.now (codes "source ") }
{
    name == b"source ".as_slice()
}

/// The 64 digits of the second line.
fn hash_in(line: &[u8]) -> Option<&[u8]>
    ensures { option_map (λ digits. digits.now) result ≡ hash_in line.now }
{
    if line.len() != 71 {
        return None;
    }
    let (name, digits) = line.split_at(7);
    if names_hash(name) && are_hex(digits) {
        Some(digits)
    } else {
        None
    }
}

/// A certificate of this hash, without blocks.
fn empty(alloc: Global, digits: &[u8]) -> Result<Certificate, AllocError>
    ensures { IfOk result (λ c. claims_of c ≡ record { hash = digits.now; heads = []; plans = [] }) }
{
    let mut hash = Vec::new(alloc);
    hash.extend_from_slice(digits)?;
    Ok(Certificate {
        hash,
        heads: Vec::new(alloc),
        plans: Vec::new(alloc),
    })
}

/// A certificate of the lines after the second.
fn with_lines(
    alloc: Global,
    digits: &[u8],
    lines: Option<&[u8]>,
) -> Result<Certificate, CertificateError>
    requires { IfSome lines (λ text. length text.now ≤ MAX_FILE_BYTES) }
    ensures read { IfOk result (λ c. claims_after 3 (record { hash = digits.now; heads = []; plans = [] }) (rest_lines (option_map (λ t. t.now) lines.entry)) ≡ Ok (claims_of c)) }
    ensures refused { IfErr result (IsRefused (claims_after 3 (record { hash = digits.now; heads = []; plans = [] }) (rest_lines (option_map (λ t. t.now) lines.entry)))) }
{
    let Ok(mut certificate) = empty(alloc, digits) else {
        return Err(CertificateError::Memory);
    };
    match lines {
        Some(text) => {
            add_lines(&mut certificate, text)?;
            Ok(certificate)
        }
        None => Ok(certificate),
    }
}

/// A certificate of the lines after the first.
fn after_header(alloc: Global, text: &[u8]) -> Result<Certificate, CertificateError>
    requires { length text.now ≤ MAX_FILE_BYTES }
    ensures read { IfOk result (λ c. after_header (lines_in text.now) ≡ Ok (claims_of c)) }
    ensures refused { IfErr result (IsRefused (after_header (lines_in text.now))) }
{
    let (line, rest) = split_line(text);
    match hash_in(line) {
        Some(digits) => with_lines(alloc, digits, rest),
        None => Err(CertificateError::Refused {
            line: 2,
            fault: CertificateFault::BadHash,
        }),
    }
}

/// Reads a certificate.
///
/// # Errors
///
/// `Refused` with its first faulty line and the first fault of that; `Memory` where there is no room.
pub fn read_certificate(alloc: Global, text: &[u8]) -> Result<Certificate, CertificateError>
    requires { length text.now ≤ MAX_FILE_BYTES }
    ensures read { IfOk result (λ c. claims_in text.now ≡ Ok (claims_of c)) }
    ensures refused { IfErr result (IsRefused (claims_in text.now)) }
{
    let (line, rest) = split_line(text);
    if line != b"zanderanvil certificate 1".as_slice() {
        return Err(CertificateError::Refused {
            line: 1,
            fault: CertificateFault::BadHeader,
        });
    }
    match rest {
        Some(rest) => after_header(alloc, rest),
        None => Err(CertificateError::Refused {
            line: 2,
            fault: CertificateFault::BadHash,
        }),
    }
}
