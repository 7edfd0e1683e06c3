//! What one worker ends the rest of the others with.
use mio::Waker;
use std::alloc::{AllocError, Global};
use std::sync::{Arc, OnceLock};

/// The wakers of all workers, each at the worker's number. It is a handle that their kits share.
#[derive(Drop)]
pub(crate) struct Bells {
    wakers: Arc<Vec<OnceLock<Waker>>, Global>,
}

impl Bells {
    /// No waker yet, and a place for each of so many workers.
    pub(crate) fn new(alloc: Global, workers: usize) -> Result<Bells, AllocError> {
        let mut wakers = Vec::with_capacity(alloc, workers)?;
        for _ in 0..workers {
            wakers.push(OnceLock::new())?;
        }
        Ok(Bells {
            wakers: Arc::new(alloc, wakers)?,
        })
    }

    /// Another handle to the same wakers.
    pub(crate) fn copy(&self) -> Result<Bells, AllocError> {
        Ok(Bells {
            wakers: Arc::try_clone(&self.wakers)?,
        })
    }

    /// Sets the waker of a worker, unless it has one or there is no such worker.
    pub(crate) fn hang(&self, number: usize, waker: Waker) {
        if let Some(place) = self.wakers.get(number) {
            let _ = place.try_set(waker);
        }
    }

    /// Ends the rest of every worker.
    pub(crate) fn ring(&self) {
        for place in self.wakers.iter() {
            if let Some(waker) = place.get() {
                let _ = waker.wake();
            }
        }
    }
}
