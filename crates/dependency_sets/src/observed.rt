ghost use Rattle.std.specs.Prelude.{◌≡◌};
ghost use Rattle.std.specs.List.{list_any};
ghost use Rattle.sensor_meaning.specs.Changes.{observes};

use sensor_meaning::{Change, Observes, Sensor};

/// Whether some of these sensors observes a change. Where none does, and nothing came or moved, nothing is dirty. It takes no
/// memory and walks no tree.
pub fn is_observed(sensors: &[Sensor], change: &Change) -> bool
    ensures { result ≡ list_any (λ s. observes s.observes change.now) sensors.now }
{
    for sensor in sensors {
        if observes(&sensor.observes, change) {
            return true;
        }
    }
    false
}

// Whether what is observed can be another one after a change.
pub(crate) fn observes(observed: &Observes, change: &Change) -> bool
    ensures { result ≡ observes observed.now change.now }
{
    match observed {
        Observes::Attr(name) => match change {
            Change::Attr { name: changed, .. } => changed.as_str() == name.as_str(),
            _ => false,
        },
        Observes::AnyAttr => match change {
            Change::Attr { .. } => true,
            _ => false,
        },
        Observes::Text => match change {
            Change::Chars { .. }
            | Change::Came { .. }
            | Change::Went { .. }
            | Change::Moved { .. } => { true }
            Change::Attr { .. } | Change::Path => false,
        },
        Observes::Children => match change {
            Change::Came { .. } | Change::Went { .. } | Change::Moved { .. } => true,
            Change::Attr { .. } | Change::Chars { .. } | Change::Path => false,
        },
        Observes::Path => match change {
            Change::Path => true,
            _ => false,
        },
    }
}
