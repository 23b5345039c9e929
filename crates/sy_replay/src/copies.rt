//! Messages that came from outside, and the copies that relays took.
ghost use Rattle.std.specs.Prelude.{◌≡◌, [], false, IfOk};
ghost use Rattle.std.specs.Arc.{arc_value};
ghost use Rattle.sy_site.specs.machine.States.{taken_by};
ghost use Rattle.sy_replay.specs.internal.Events.{behind};

use std::alloc::{AllocError, Global};
use std::marker::Model;
use std::sync::Arc;
use sy_site::SiteInput;
use sy_wire::Message;

/// A message that came from outside, and the input that it came by.
#[derive(Drop)]
pub(crate) struct Arrived {
    pub(crate) message: Arc<Message>,
    pub(crate) origin: SiteInput,
}

impl Model for Arrived {
    ghost use Rattle.std.specs.Arc.{arc_value};
    ghost use Rattle.sy_site.specs.machine.States.{Arrival};

    ghost Value = { Arrival };

    ghost view = { λ a. record { message = arc_value a.message; origin = a.origin } };
}

/// A copy: the message's number, the message, the input that it came by from outside, the relays that took it, and
/// whether a spare action stood on its way.
#[derive(Drop)]
pub(crate) struct Copied {
    number: u64,
    message: Arc<Message>,
    origin: SiteInput,
    trail: Vec<u32>,
    flag: bool,
}

impl Model for Copied {
    ghost use Rattle.std.specs.Arc.{arc_value};
    ghost use Rattle.sy_site.specs.machine.States.{Copy};

    ghost Value = { Copy };

    ghost view = { λ c. record { number = c.number; message = arc_value c.message; origin = c.origin; trail = c.trail.items; flag = c.flag } };
}

impl Copied {
    // The first copy of a message from outside, taken by the relay that it came to.
    pub(crate) fn first(
        alloc: Global,
        number: u64,
        message: &Arc<Message>,
        origin: SiteInput,
    ) -> Result<Copied, AllocError>
        ensures { IfOk result (λ copy. copy ≡ taken_by origin.relay (record { number = number; message = arc_value message.now; origin = origin; trail = []; flag = false })) }
    {
        let message = Arc::try_clone(message)?;
        let mut trail = Vec::new(alloc);
        trail.push(origin.relay)?;
        Ok(Copied {
            number,
            message,
            origin,
            trail,
            flag: false,
        })
    }

    // The copy, taken by one more relay, off the link of an action; where that is spare it is flagged from then on.
    pub(crate) fn taken_by(
        &self,
        alloc: Global,
        relay: u32,
        spare: bool,
    ) -> Result<Copied, AllocError>
        ensures { IfOk result (λ copy. copy ≡ taken_by relay (behind spare self.now)) }
    {
        let message = Arc::try_clone(&self.message)?;
        let mut trail = Vec::with_capacity(alloc, self.trail.len())?;
        trail.extend_from_slice(self.trail.as_slice())?;
        trail.push(relay)?;
        Ok(Copied {
            number: self.number,
            message,
            origin: self.origin,
            trail,
            flag: self.flag || spare,
        })
    }

    pub(crate) fn number(&self) -> u64
        ensures { result ≡ self.now.number }
    {
        self.number
    }

    // Whether it was flagged when it was taken.
    pub(crate) fn flag(&self) -> bool
        ensures { result ≡ self.now.flag }
    {
        self.flag
    }

    pub(crate) fn message(&self) -> &Arc<Message>
        ensures { arc_value result.now ≡ self.now.message }
    {
        &self.message
    }
}
