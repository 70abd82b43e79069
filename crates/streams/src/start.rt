//! What a flow begins with, and what is left of it.
ghost use Rattle.std.specs.Prelude.{◌≡◌};
ghost use Rattle.model.specs.Flows.{fresh_flow};
ghost use Rattle.streams.specs.Views.{flow_seen};
ghost use Rattle.streams.specs.Points.{WorkedPoints};
ghost use Rattle.streams.specs.Counts.{Within};

use crate::types::{Flow, WINDOW_START};

impl Flow {
    /// A window of 1,000, and nothing counted.
    pub fn fresh() -> Flow
        ensures fresh { flow_seen result ≡ fresh_flow }
        ensures worked { WorkedPoints }
        ensures within { Within (flow_seen result) }
    {
        Flow {
            window: WINDOW_START,
            unacknowledged: 0,
            sent: 0,
        }
    }

    /// The DATA that may still be sent.
    pub fn window(&self) -> u16
        ensures count { result ≡ (flow_seen self.now).window }
        ensures within { Within (flow_seen self.now) }
    {
        self.window
    }

    /// The DATA that were delivered and not acknowledged.
    pub fn unacknowledged(&self) -> u16
        ensures count { result ≡ (flow_seen self.now).unacknowledged }
        ensures within { Within (flow_seen self.now) }
    {
        self.unacknowledged
    }
}
