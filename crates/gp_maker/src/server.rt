//! The maker of a server's sessions.
ghost use Rattle.std.specs.Prelude.{◌≡◌, IfOk};
ghost use Rattle.gp_maker.specs.Meanings.{tag_of};

use crate::client::Serving;
use crate::publisher::Publishing;
use gp_hub::{Hub, HubPass};
use gp_outside::{Kit, Listen};
use gp_plain::{Body, Signer};
use gp_routes::Routes;
use gp_session_http::HttpSession;
use gp_session_publish::PublishSession;
use gp_workers::Maker;
use std::alloc::{AllocError, Global};
use std::marker::PhantomData;
use std::sync::Mutex;

/// What a server is made with, for all its sessions.
#[derive(Drop)]
pub struct Server<'h, K: Kit + Send> {
    alloc: Global,
    hub: &'h Hub,
    routes: &'h Routes,
    signer: &'h Signer,
    started: u64,
    /// Kits of this kind are served. A mutex may be shared between threads wherever a kit may be sent to one.
    kit: PhantomData<Mutex<K>>,
}

/// What a session is known by to origins: the second at which the server started, and the claim.
fn tag(alloc: Global, started: u64, claim: u32) -> Result<Body, AllocError>
    ensures { IfOk result (λ tag. tag ≡ tag_of started claim) }
{
    let text = format!(in alloc; "{started}-{claim}")?;
    Ok(Body::from_vec(text.into_bytes()))
}

impl<'h, K: Kit + Send> Server<'h, K> {
    /// What makes the sessions of a server that started at this second. It takes no memory.
    pub fn new(
        alloc: Global,
        hub: &'h Hub,
        routes: &'h Routes,
        signer: &'h Signer,
        started: u64,
    ) -> Server<'h, K>
        ensures hub { result.hub.now ≡ hub.now }
        ensures routes { result.routes.now ≡ routes.now }
        ensures signer { result.signer.now ≡ signer.now }
        ensures started { result.started ≡ started }
    {
        Server {
            alloc,
            hub,
            routes,
            signer,
            started,
            kit: PhantomData,
        }
    }
}

impl<'h, K: Kit + Send> Maker for Server<'h, K> {
    type Kit = K;

    type Client = Serving<'h, K>;

    type Publisher = Publishing<'h, K>;

    ghost use Rattle.gp_maker.specs.Meanings.{Means};

    ghost turn = { λ m. m.hub.now };

    ghost means = { λ m. Means K.Listen.Link.tells K.Dial.tells K.Clock.tells (record { rules = m.routes.now; signer = m.signer.now; started = m.started }) };

    fn client(
        &self,
        kit: &mut K,
        pass: HubPass,
        claim: u32,
        link: <K::Listen as Listen>::Link,
    ) -> Result<Serving<'h, K>, (HubPass, AllocError)> {
        let tag = match tag(self.alloc, self.started, claim) {
            Ok(tag) => tag,
            Err(refused) => return Err((pass, refused)),
        };
        let dial = kit.dial();
        let clock = kit.clock();
        Ok(Serving {
            session: Some(HttpSession::new(
                self.alloc,
                self.hub,
                pass,
                self.routes,
                self.signer,
                tag,
                link,
                dial,
                clock,
            )),
        })
    }

    fn publisher(
        &self,
        _kit: &mut K,
        pass: HubPass,
        link: <K::Listen as Listen>::Link,
    ) -> Result<Publishing<'h, K>, (HubPass, AllocError)> {
        Ok(Publishing {
            session: Some(PublishSession::new(self.alloc, self.hub, pass, link)),
        })
    }
}
