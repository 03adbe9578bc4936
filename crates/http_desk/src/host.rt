// What answers to what requests ask.

ghost use Rattle.std.specs.Prelude.{◌≡◌, Result};
ghost use Rattle.http_messages.specs.Replies.{ReplyValue};
ghost use Rattle.http_stream.specs.declared.handler.HandleFault.{HandleFault};
ghost use Rattle.desk_routes.specs.Served.{IsServed};
ghost use Rattle.desk_routes.specs.declared.places.Asked.{Asked};
ghost use Rattle.desk_routes.specs.declared.places.Routes.{Routes};

use desk_routes::{Asked, Routes};
use http_messages::Reply;
use http_stream::HandleFault;
use std::alloc::Global;

/// What answers to what requests ask of a desk.
pub trait Host {
    /// What a call does: from a state, by what is asked, with an answer, to a state.
    ghost does: { Self → Asked → Result ReplyValue HandleFault → Self → Type 0 };

    /// What a call needs of the state, and keeps.
    ghost ready: { Self → Type 0 };

    /// The routes that it is for, which no call changes.
    ghost routes: { Self → Routes };

    /// Answers to what a request asks.
    fn ask(&mut self, alloc: Global, asked: Asked) -> Result<Reply, HandleFault>
        requires ready { ready self.old }
        requires served { IsServed (routes self.old) asked }
        ensures does { does self.old asked result self.new }
        ensures ready { ready self.new }
        ensures same { routes self.new ≡ routes self.old };
}
