//! Lists of sensors: routes made longer, lists joined and copied.
ghost use Rattle.std.specs.Prelude.{◌≡◌, [], ◌∷◌, ◌++◌, IfOk};
ghost use Rattle.sensor_meaning.specs.Sensors.{one, via};

use listed::Listed;
use sensor_meaning::{Observes, Route, Sensor, Way};
use std::alloc::{AllocError, Global};

// Each sensor with a direction more at the end of its route.
pub(crate) fn via(alloc: Global, sensors: Vec<Sensor>, way: Way) -> Result<Vec<Sensor>, AllocError>
    ensures { IfOk result (λ more. more.items ≡ via way sensors.items) }
{
    let mut more = Vec::new(alloc);
    for sensor in sensors {
        more.push(further(sensor, way)?)?;
    }
    Ok(more)
}

// A sensor with a direction more at the end of its route.
fn further(sensor: Sensor, way: Way) -> Result<Sensor, AllocError>
    ensures { IfOk result (λ more. more ≡ record { observes = sensor.observes; route = sensor.route ++ way ∷ [] }) }
{
    let Sensor {
        observes,
        mut route,
    } = sensor;
    route.push(way)?;
    Ok(Sensor { observes, route })
}

// The sensors of two lists.
pub(crate) fn joined(mut sensors: Vec<Sensor>, more: Vec<Sensor>) -> Result<Vec<Sensor>, AllocError>
    ensures { IfOk result (λ all. all.items ≡ sensors.items ++ more.items) }
{
    for sensor in more {
        sensors.push(sensor)?;
    }
    Ok(sensors)
}

// The sensors, and one that observes this where the change is.
pub(crate) fn with_here(
    alloc: Global,
    mut sensors: Vec<Sensor>,
    observes: Observes,
) -> Result<Vec<Sensor>, AllocError>
    ensures { IfOk result (λ all. all.items ≡ sensors.items ++ one observes []) }
{
    let route = Route::new(alloc);
    sensors.push(Sensor { observes, route })?;
    Ok(sensors)
}

// The sensors, and one that observes this one direction away.
pub(crate) fn with_one(
    alloc: Global,
    mut sensors: Vec<Sensor>,
    observes: Observes,
    way: Way,
) -> Result<Vec<Sensor>, AllocError>
    ensures { IfOk result (λ all. all.items ≡ sensors.items ++ one observes (way ∷ [])) }
{
    let mut route = Route::new(alloc);
    route.push(way)?;
    sensors.push(Sensor { observes, route })?;
    Ok(sensors)
}

// Equal sensors.
pub(crate) fn copied(alloc: Global, sensors: &[Sensor]) -> Result<Vec<Sensor>, AllocError>
    ensures { IfOk result (λ copy. copy.items ≡ sensors.now) }
{
    let mut copy = Vec::new(alloc);
    for sensor in sensors {
        copy.push(Sensor {
            observes: copied_observes(alloc, &sensor.observes)?,
            route: copied_route(alloc, &sensor.route)?,
        })?;
    }
    Ok(copy)
}

fn copied_observes(alloc: Global, observes: &Observes) -> Result<Observes, AllocError>
    ensures { IfOk result (λ copy. copy ≡ observes.now) }
{
    Ok(match observes {
        Observes::Attr(name) => Observes::Attr(name.copy(alloc)?),
        Observes::AnyAttr => Observes::AnyAttr,
        Observes::Text => Observes::Text,
        Observes::Children => Observes::Children,
        Observes::Path => Observes::Path,
    })
}

fn copied_route(alloc: Global, route: &Route) -> Result<Route, AllocError>
    ensures { IfOk result (λ copy. copy ≡ route.now) }
{
    let mut copy = Listed::new(alloc);
    copy.extend(route.as_slice())?;
    Ok(copy)
}
