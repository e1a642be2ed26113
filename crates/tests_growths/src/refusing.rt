//! What refuses a request for memory. The C library that stands before `malloc` counts requests from a read of standard input on:
//! by a read of n + 1 bytes the nth request from then on is refused, by one of 256 bytes each, until a read of one byte, which gives 1
//! if a request was refused, and else 0.
use std::io::Read;

/// As a number of a request: each one.
pub(crate) const EACH: usize = 255;

// What a read of so many bytes gives, if it gives one byte.
fn asked<R: Input>(rt: &R, length: usize) -> Option<u8> {
    let mut room = [0u8; 256];
    let part = room.get_mut(..length)?;
    match rt.reader().read(part) {
        Ok(1) => Some(room[0]),
        _ => None,
    }
}

/// From now on the request of this number is refused; for 0 none is.
pub(crate) fn refuse<R: Input>(rt: &R, number: usize) {
    if number > 0 {
        let _ = asked(rt, number.saturating_add(1));
    }
}

/// From now on no request is refused. Whether one was.
pub(crate) fn was_refused<R: Input>(rt: &R) -> bool {
    matches!(asked(rt, 1), Some(1))
}

/// Whether requests for memory can be refused here.
pub(crate) fn refuses<R: AllocGlobal + Input>(rt: &R) -> bool {
    refuse(rt, 1);
    let made = Box::new(rt.alloc(), 0u8);
    was_refused(rt) && made.is_err()
}
