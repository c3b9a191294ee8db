//! What tests expect. A failure tells the name of the session or of the row.
use nntp_spool::Verified;
use std::test::Fail;

/// These octets are those that are wanted.
///
/// # Errors
///
/// Both, where they differ.
pub fn expect_octets(name: &str, octets: &[u8], wanted: &[u8]) -> Result<(), Fail> {
    if octets == wanted {
        return Ok(());
    }
    let (octets, wanted) = (octets.escape_ascii(), wanted.escape_ascii());
    Err(Fail::new(format_args!("{name}: {octets}, and wanted is {wanted}")))
}

/// A report begins so.
///
/// # Errors
///
/// The report, where it begins otherwise.
pub fn expect_front(name: &str, report: &[u8], front: &str) -> Result<(), Fail> {
    if report.starts_with(front.as_bytes()) {
        return Ok(());
    }
    let report = report.escape_ascii();
    Err(Fail::new(format_args!("{name}: {report}, and wanted is {front}")))
}

/// `verify` answers so.
///
/// # Errors
///
/// Both answers, where they differ.
pub fn expect_verified(name: &str, verified: Verified, wanted: Verified) -> Result<(), Fail> {
    if verified == wanted {
        return Ok(());
    }
    Err(Fail::new(format_args!("{name}: {verified:?}, and wanted is {wanted:?}")))
}
