//! The bodies of frames and answers, taken from left to right.
ghost use Rattle.link_codec.specs.Decoding.{Takes};
ghost use Rattle.link_codec.specs.FrameReading.{frame_at, get_at, hello_at, pull_at, push_at, request_at, status_at};

use crate::decoder::Decoder;
use crate::faults::LinkFault;
use crate::frames::Frame;
use std::alloc::Global;

impl Decoder<'_> {
    #[tactic(auto, unfolding(crate::specs::FrameReading::hello_at), using(crate::proofs::Steps::refused_then))]
    fn hello(&mut self) -> Result<Frame, LinkFault>
        ensures { Takes result (hello_at self.old.rest.now) self.new.rest.now }
    {
        let text = self.text(32)?;
        let mut fingerprint = [0; 32];
        fingerprint.copy_from_slice(text);
        Ok(Frame::Hello(fingerprint))
    }

    #[tactic(auto, unfolding(crate::specs::FrameReading::get_at), using(crate::proofs::Steps::refused_then))]
    fn get(&mut self, alloc: Global) -> Result<Frame, LinkFault>
        ensures { Takes result (get_at self.old.rest.now) self.new.rest.now }
    {
        let key = self.key(alloc)?;
        Ok(Frame::Get(key))
    }

    #[tactic(auto, unfolding(crate::specs::FrameReading::status_at), using(crate::proofs::Steps::refused_then))]
    fn status(&mut self) -> Result<Frame, LinkFault>
        ensures { Takes result (status_at self.old.rest.now) self.new.rest.now }
    {
        let id = self.id()?;
        Ok(Frame::Status(id))
    }

    #[tactic(auto, unfolding(crate::specs::FrameReading::request_at), using(crate::proofs::Steps::refused_then))]
    fn request(&mut self, alloc: Global) -> Result<Frame, LinkFault>
        ensures { Takes result (request_at self.old.rest.now) self.new.rest.now }
    {
        let ask = self.ask(alloc)?;
        Ok(Frame::Request(ask))
    }

    #[tactic(auto, unfolding(crate::specs::FrameReading::pull_at), using(crate::proofs::Steps::refused_then))]
    fn pull(&mut self) -> Result<Frame, LinkFault>
        ensures { Takes result (pull_at self.old.rest.now) self.new.rest.now }
    {
        let to = self.site()?;
        Ok(Frame::Pull(to))
    }

    #[tactic(auto, unfolding(crate::specs::FrameReading::push_at), using(crate::proofs::Steps::refused_then))]
    fn push(&mut self, alloc: Global) -> Result<Frame, LinkFault>
        ensures { Takes result (push_at self.old.rest.now) self.new.rest.now }
    {
        let message = self.message(alloc)?;
        Ok(Frame::Push(message))
    }

    /// What a frame of a kind from 1 to 7 has.
    #[tactic(auto, unfolding(crate::specs::FrameReading::frame_at))]
    pub(crate) fn frame(&mut self, alloc: Global, kind: u8) -> Result<Frame, LinkFault>
        ensures { Takes result (frame_at kind self.old.rest.now) self.new.rest.now }
    {
        match kind {
            1 => self.hello(),
            2 => self.get(alloc),
            3 => self.status(),
            4 => self.request(alloc),
            5 => self.pull(),
            6 => self.push(alloc),
            _ => Ok(Frame::Flush),
        }
    }
}
