//! Names in a declaration of traffic.
ghost use Rattle.serde_json.specs.View.{view};
ghost use Rattle.fx_walk.specs.Pointer.{pointer};
ghost use Rattle.fx_walk.specs.Walk.{Reads};
ghost use Rattle.fx_walk.specs.Scalars.{text_of};
ghost use Rattle.fx_traffic.specs.Texts.{name_faults};

use fx_base::{Fault, Name, refusals};
use fx_walk::DocumentPath;
use serde_json::Value;
use std::alloc::Global;

/// Reads a name. Fails with 104 if the value is not a text, and with 302 if the text is not a name.
pub fn read_name(alloc: Global, path: &DocumentPath<'_>, value: &Value) -> Result<Name, Fault>
    ensures { Reads (name_faults (pointer path.now) (view value.now)) (text_of (view value.now))
        result }
{
    fx_walk::read_name(alloc, path, value, refusals::TRAFFIC_VALUE)
}
