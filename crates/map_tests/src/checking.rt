use crate::building::verdict;
use files::format::Format;
use std::process::Abort;
use std::test::Fail;

// The file is told to be accepted, or refused, in these words.
pub fn check_verdict(
    rt: &(impl Abort + AllocGlobal),
    bytes: &[u8],
    format: Format,
    told: &str,
) -> Result<(), Fail> {
    assert_eq!(rt; verdict(rt.alloc(), bytes, format)?.as_str(), told);
    Ok(())
}
