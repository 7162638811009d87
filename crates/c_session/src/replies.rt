//! The replies to an event.

ghost use Rattle.std.specs.Prelude.{◌≡◌, [], ◌∷◌, length, option_map, slice_get, Ok};
ghost use Rattle.c_session.specs.Kept.{lent, only_sent, replies_in};

use mme_core::{Out, Outs, StepFault};
use std::alloc::Global;
use std::marker::Model;
use std::mem;

/// Where the replies to an event lie. The only reply of most events needs no memory of its own.
#[derive(Drop)]
enum Room {
    /// The one reply, to an event that was taken.
    One(Outs),
    /// The replies to several events, in order.
    Each(Vec<Result<Outs, StepFault>>),
}

/// The replies to an event, or to several ticks, in order; a contract sees their list.
pub struct Replies {
    room: Room,
}

impl Drop for Replies {
    // Zeros stand in place of what they sent before it is freed, since some of it carries a key.
    fn drop(self) {
        let Replies { room } = self;
        match room {
            Room::One(outs) => outs.forget(),
            Room::Each(replies) => forget_each(replies),
        }
    }
}

impl Model for Replies {
    ghost use Rattle.std.specs.Prelude.{List};
    ghost use Rattle.c_session.specs.Kept.{Reply, replies_in};

    ghost Value = { List Reply };

    ghost view = { λ r. replies_in r.room };
}

impl Replies {
    /// No reply; takes no memory.
    pub fn none(alloc: Global) -> Replies
        ensures { result ≡ [] }
    {
        Replies {
            room: Room::Each(Vec::new(alloc)),
        }
    }

    /// The reply to an event that was taken; takes no memory.
    pub(crate) fn one(outs: Outs) -> Replies
        ensures { result ≡ Ok outs ∷ [] }
    {
        Replies {
            room: Room::One(outs),
        }
    }

    /// These replies.
    pub(crate) fn each(replies: Vec<Result<Outs, StepFault>>) -> Replies
        ensures { result ≡ replies.items }
    {
        Replies {
            room: Room::Each(replies),
        }
    }

    fn into_room(self) -> Room
        ensures { replies_in result ≡ self }
    {
        let Replies { room } = self;
        room
    }

    /// The reply to an event that was taken stands in their place. Where they were one such reply too, what it sent is answered, so
    /// that its room can be used again, and else they are forgotten.
    pub(crate) fn exchange(&mut self, outs: Outs) -> Option<Outs>
        ensures stands { self.new ≡ Ok outs ∷ [] }
        ensures before { result ≡ only_sent self.old }
    {
        match mem::replace(self, Replies::one(outs)).into_room() {
            Room::One(sent) => Some(sent),
            Room::Each(replies) => only_sent(replies),
        }
    }

    /// Others stand in their place, and they are forgotten.
    pub(crate) fn give_way(&mut self, others: Replies)
        ensures { self.new ≡ others }
    {
        *self = others;
    }

    /// How many there are.
    pub fn len(&self) -> usize
        ensures { result ≡ length self.now }
    {
        match &self.room {
            Room::One(_) => 1,
            Room::Each(replies) => replies.len(),
        }
    }

    /// The reply at a place, from 0, if there is one.
    pub fn get(&self, place: usize) -> Option<Result<&[Out], StepFault>>
        ensures { option_map lent result ≡ slice_get self.entry.now place }
    {
        match &self.room {
            Room::One(outs) => {
                if place == 0 {
                    Some(Ok(outs.as_slice()))
                } else {
                    None
                }
            }
            Room::Each(replies) => match replies.as_slice().get(place) {
                Some(reply) => Some(lent_reply(reply)),
                None => None,
            },
        }
    }
}

// What the only reply sent, if there is one alone, to an event that was taken; else they are forgotten.
fn only_sent(replies: Vec<Result<Outs, StepFault>>) -> Option<Outs>
    ensures { result ≡ only_sent replies.items }
{
    let mut replies = replies;
    if replies.len() == 1 {
        match replies.pop() {
            Some(Ok(outs)) => Some(outs),
            Some(Err(_)) | None => None,
        }
    } else {
        forget_each(replies);
        None
    }
}

// Nobody asks for them any more.
fn forget_each(replies: Vec<Result<Outs, StepFault>>) {
    for reply in replies {
        if let Ok(outs) = reply {
            outs.forget();
        }
    }
}

fn lent_reply(reply: &Result<Outs, StepFault>) -> Result<&[Out], StepFault>
    ensures { lent result ≡ reply.entry.now }
{
    match reply {
        Ok(outs) => Ok(outs.as_slice()),
        Err(fault) => Err(*fault),
    }
}
