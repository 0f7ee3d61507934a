//! Reads the header of a session.
ghost use Rattle.std.specs.Prelude.{◌≡◌, IfOk, IfSome, MatchOption};
ghost use Rattle.tx_lines.specs.Lines.{FitsHeader};
ghost use Rattle.tx_shell.specs.Origins.{origin_said, unsaid_origin, version_of, SaysNoOrigin, SaysOrigin};

use crate::lines::text_of;
use crate::lines::versions::TextVersion;
use std::alloc::Global;
use tx_base::NoMemory;
use tx_lines::{Header, TextKind, Version, first_header};
use tx_translate::{Meant, is_third};

/// What a header says.
#[derive(Clone, Copy)]
pub struct Opening {
    pub version: TextVersion,
    pub header: Header,
}

impl Opening {
    /// As of a session without a header: version 3, with two processes.
    pub fn unsaid() -> Opening
        ensures origin { origin_said result ≡ unsaid_origin }
        ensures fits { FitsHeader result.header }
    {
        Opening {
            version: TextVersion::Three,
            header: Header {
                version: Version::Two,
                count: 2,
            },
        }
    }
}

/// What a line says as the first line of a schedule. Nothing where it is none.
///
/// NoMemory where a growth is refused.
#[inline(never)] // inlined, each line would reserve its stack
pub fn read_opening(alloc: Global, line: &[u8]) -> Result<Option<Opening>, NoMemory>
    ensures says { IfOk result (λ opening.
        MatchOption opening (SaysNoOrigin line.now) (λ o. SaysOrigin line.now (origin_said o))) }
    ensures fits { IfOk result (λ opening. IfSome opening (λ o. FitsHeader o.header)) }
{
    let text = text_of(alloc, line)?;
    let meant = Meant::by(alloc, text.as_slice())?;
    match first_header(TextKind::Schedule, meant.as_bytes()) {
        Ok((header, _rest)) => {
            let version = version_of(is_third(text.as_slice()), header.version);
            Ok(Some(Opening { version, header }))
        }
        Err(_fault) => Ok(None),
    }
}

/// The version that a header is of.
fn version_of(is_third: bool, version: Version) -> TextVersion
    ensures { result ≡ version_of is_third version }
{
    if is_third {
        return TextVersion::Three;
    }
    match version {
        Version::One => TextVersion::One,
        Version::Two => TextVersion::Two,
    }
}
