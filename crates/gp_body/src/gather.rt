ghost use Rattle.std.specs.Prelude.{◌≡◌, ◌+◌, ◌≤◌, ◌++◌, None, Some, Err, length, vec_len, vec_capacity};
ghost use Rattle.gp_body.specs.declared.fed.FedFault.{FedFault};
ghost use Rattle.gp_body.specs.declared.fed.FedAllFault.TheVariants.{Body};
ghost use Rattle.gp_body.specs.Alls.{IsFedAll, IsAllFed};
ghost use Rattle.gp_body.specs.Readings.{IsSound};

use crate::fed::{FedAll, FedAllFault, FedFault};
use crate::reading::Reading;

impl Reading {
    /// Takes all bytes, or those up to the body's end, and adds their content.
    pub fn feed_all(&mut self, bytes: &[u8], into: &mut Vec<u8>) -> Result<FedAll, FedAllFault>
        requires { IsSound self.old }
        ensures fed { IsAllFed self.old bytes.now result self.new into.old.items into.new.items }
        ensures again { (fault : FedFault) → self.old.refused ≡ Some fault → (result ≡ Err (Body fault)) × (self.new ≡ self.old) × (into.new.items ≡ into.old.items) }
        ensures sound { IsSound self.new }
    {
        if let Some(fault) = self.refused {
            return Err(FedAllFault::Body(fault));
        }
        match into.reserve(bytes.len()) {
            Ok(()) => match self.gather(bytes, into) {
                Ok(fed) => Ok(fed),
                Err(fault) => Err(FedAllFault::Body(fault)),
            },
            Err(_) => Err(FedAllFault::NoMemory),
        }
    }

    /// The same, where there is room for all bytes.
    fn gather(&mut self, bytes: &[u8], into: &mut Vec<u8>) -> Result<FedAll, FedFault>
        requires sound { IsSound self.old }
        requires open { self.old.refused ≡ None }
        requires room { vec_len into.old + length bytes.now ≤ vec_capacity into.old }
        ensures fed { IsFedAll self.old bytes.now result self.new into.old.items into.new.items }
        ensures sound { IsSound self.new }
    {
        let mut taken = 0;
        while taken < bytes.len() && !self.state.is_end() {
            let rest = &bytes[taken..];
            let fed = self.feed(rest)?;
            add(into, &rest[fed.from..fed.to]);
            taken += fed.taken;
        }
        Ok(FedAll {
            taken,
            end: self.state.is_end(),
        })
    }
}

/// Adds bytes for which there is room.
fn add(into: &mut Vec<u8>, bytes: &[u8])
    requires { vec_len into.old + length bytes.now ≤ vec_capacity into.old }
    ensures items { into.new.items ≡ into.old.items ++ bytes.now }
    ensures len { vec_len into.new ≡ vec_len into.old + length bytes.now }
    ensures capacity { vec_capacity into.old ≤ vec_capacity into.new }
{
    let _added = into.extend_from_slice(bytes);
}
