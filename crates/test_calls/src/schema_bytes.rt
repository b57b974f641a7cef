// Bytes that are nearly those of a schema. Run as a test.
use metadata::{MetadataError, Refusal, Schema};
use std::alloc::{AllocError, Global};
use std::test::Fail;
use test_parts::{bytes_of, holds};

/// The bytes of two types, with indexes of each kind.
const INDEXED: &str = "150115021504\
    050515010274000505026b0015010005026100150100050262001501000005140000\
    051502027500050502730015020005027900150300000514000000\
    050515010276001501150105150115020000ff00\
    05150302630015021502050000ff00\
    051504027700150315010515010015020000";

/// What bytes are.
#[derive(Clone, Copy, PartialEq, Eq)]
enum Found {
    /// Refused as those of no schema.
    Refused,
    /// Those of the schema that they are read as.
    Own,
    Other,
}

fn decoded(alloc: Global, bytes: &[u8]) -> Result<Found, AllocError> {
    match Schema::decode(alloc, bytes) {
        Ok(schema) if schema.encode(alloc)?.as_slice() == bytes => Ok(Found::Own),
        Err(MetadataError::Refused(Refusal::BadSchema)) => Ok(Found::Refused),
        _ => Ok(Found::Other),
    }
}

/// Each byte at a place makes these bytes refused, or another schema's own.
fn are_refused_or_own(alloc: Global, bytes: &[u8], place: usize) -> Result<(), Fail> {
    let mut changed = Vec::from_slice(alloc, bytes)?;
    for byte in 0..=255u8 {
        if let Some(at) = changed.get_mut(place) {
            *at = byte;
        }
        holds(decoded(alloc, &changed)? != Found::Other, "a change")?;
    }
    Ok(())
}

#[test]
fn changes_and_beginnings_are_refused(rt: HostRuntime) -> Result<(), Fail> {
    let bytes = bytes_of(rt.alloc(), INDEXED)?;
    for place in 0..bytes.as_slice().len() {
        are_refused_or_own(rt.alloc(), bytes.as_slice(), place)?;
        let beginning = bytes.as_slice().get(..place).unwrap_or(&[]);
        holds(
            decoded(rt.alloc(), beginning)? == Found::Refused,
            "a beginning",
        )?;
    }
    Ok(())
}
