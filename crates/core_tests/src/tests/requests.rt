//! How many bytes an incomplete request needs at least.

use httparse::spans::EMPTY_HEADER_SPAN;
use reg_messages::{ParseOutcome, parse_front};
use std::test::Fail;

/// A request that sets a level.
const SET_FULL: &str =
    "PUT /config HTTP/1.1\r\nContent-Length: 24\r\n\r\n{\"compatibility\":\"FULL\"}";

/// Part of a head needs one more byte, and a whole head needs its whole body. Without bytes there is no part.
#[test]
fn part_of_a_request_reports_the_bytes_it_needs(rt: HostRuntime) -> Result<(), Fail> {
    let whole = SET_FULL.len();
    let head = whole.saturating_sub(24);
    for at in 0..whole {
        let part = SET_FULL.as_bytes().get(..at).ok_or("no part")?;
        let mut headers = vec![in rt.alloc(); EMPTY_HEADER_SPAN; 4]?;
        let needs = match parse_front(part, headers.as_mut_slice()) {
            ParseOutcome::Part(needs) => needs,
            _ => 0,
        };
        if at == 0 {
            assert_eq!(rt; needs, 0);
        } else if at < head {
            assert_eq!(rt; needs, at.saturating_add(1), "{at}");
        } else {
            assert_eq!(rt; needs, whole, "{at}");
        }
    }
    Ok(())
}
