//! The addresses of origins that were looked up lately.
use std::alloc::{AllocError, Global};
use std::net::IpAddr;
use std::sync::{Arc, Mutex};
use std::time::{Duration, Instant};

/// How long the addresses of a name are used without another look-up, in seconds.
const KEPT: u64 = 60;

/// The names that are kept, at most. Further ones are looked up each time.
const NAMES: usize = 1_024;

/// One name, its addresses in the order in which they are tried, and when they were told.
#[derive(Drop)]
struct Known {
    host: Vec<u8>,
    addresses: Vec<IpAddr>,
    told: Instant,
}

/// Names that were looked up. It is a handle that the dialers of all workers share.
#[derive(Drop)]
pub(crate) struct Names {
    known: Arc<Mutex<Vec<Known>>, Global>,
}

/// Where a name stands.
fn place_of(known: &[Known], host: &[u8]) -> Option<usize> {
    known.iter().position(|one| one.host.as_slice() == host)
}

impl Names {
    /// No name yet.
    pub(crate) fn new(alloc: Global) -> Result<Names, AllocError> {
        Ok(Names {
            known: Arc::new(alloc, Mutex::new(Vec::new(alloc)))?,
        })
    }

    /// Another handle to the same names.
    pub(crate) fn copy(&self) -> Result<Names, AllocError> {
        Ok(Names {
            known: Arc::try_clone(&self.known)?,
        })
    }

    /// The addresses of a name that were told less than a minute ago. It gives None too where another worker uses the list at this moment,
    /// or memory is wanting.
    pub(crate) fn find(&self, alloc: Global, host: &[u8], now: Instant) -> Option<Vec<IpAddr>> {
        let known = self.known.try_lock()?;
        let one = known.get(place_of(known.as_slice(), host)?)?;
        if now.saturating_duration_since(one.told) >= Duration::from_secs(KEPT) {
            return None;
        }
        Vec::from_slice(alloc, one.addresses.as_slice()).ok()
    }

    /// Keeps the addresses of a name, in place of those that were told before. Where another worker uses the list at this moment, memory is
    /// wanting, or enough names are kept, it leaves the list as it is.
    pub(crate) fn keep(&self, alloc: Global, host: &[u8], addresses: &[IpAddr], now: Instant) {
        let (Ok(host), Ok(addresses)) = (
            Vec::from_slice(alloc, host),
            Vec::from_slice(alloc, addresses),
        ) else {
            return;
        };
        let one = Known {
            host,
            addresses,
            told: now,
        };
        let Some(mut known) = self.known.try_lock() else {
            return;
        };
        match place_of(known.as_slice(), one.host.as_slice()) {
            Some(place) => {
                if let Some(old) = known.get_mut(place) {
                    *old = one;
                }
            }
            None if known.len() < NAMES => {
                let _ = known.push(one);
            }
            None => {}
        }
    }
}
