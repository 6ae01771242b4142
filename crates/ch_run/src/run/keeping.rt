//! Places that a run keeps while the weights change, and the searches from them.
ghost use Rattle.std.specs.Prelude.{◌≡◌, IfOk, IfSome};
ghost use Rattle.ch_read.specs.Requests.{ArePlaces};
ghost use Rattle.ch_run.specs.Serving.{IsRoomFor, places_kept, places_of};

use super::answering::{Answering, Room};
use super::first::search_from;
use crate::plan::{Crew, Gate};
use std::alloc::{AllocError, Global};
use std::marker::Model;
use std::thread::Threads;

/// The places that were given last, and the greatest number of them in a near row, if there is one.
#[derive(Drop)]
pub(crate) struct KeptPlaces {
    nodes: Vec<u32>,
    count: Option<u32>,
}

impl Model for KeptPlaces {
    ghost use Rattle.ch_read.specs.RequestLists.{PlaceList};

    ghost Value = { PlaceList };

    ghost view = { λ kept. record { nodes = kept.nodes.items; count = kept.count } };
}

/// Returns a room in which the kept places, if there are any, were searched from.
pub(crate) fn room_with<'a, R: Threads + Sync, G: Gate>(
    crew: &Crew<'_, R, G>,
    by: &Answering<'a>,
    kept: &Option<KeptPlaces>,
) -> Result<Room<'a>, AllocError>
    requires { IfSome kept.now (ArePlaces by.now.checked.now.graph.nodes) }
    ensures places { IfOk result (λ room. places_of room.near ≡ places_kept kept.now) }
    ensures room { IfOk result (λ room. IsRoomFor by.now.options.now.direction by.now.checked.now room) }
{
    let Some(places) = kept else {
        return Ok(Room::new(crew.alloc));
    };
    let near = search_from(crew, by, &places.nodes, places.count)?;
    Ok(Room {
        scratches: Vec::new(crew.alloc),
        near: Some(near),
    })
}

/// Returns the places from which a room was searched, if there are any.
pub(crate) fn places_in(
    alloc: Global,
    _by: &Answering<'_>,
    room: &Room<'_>,
) -> Result<Option<KeptPlaces>, AllocError>
    requires { IsRoomFor _by.now.options.now.direction _by.now.checked.now room.now }
    ensures places { IfOk result (λ kept. places_kept kept ≡ places_of room.now.near) }
    ensures within { IfOk result (λ kept. IfSome kept (ArePlaces _by.now.checked.now.graph.nodes)) }
{
    let Some(near) = &room.near else {
        return Ok(None);
    };
    let nodes = Vec::from_slice(alloc, near.targets())?;
    let count = near.count();
    Ok(Some(KeptPlaces { nodes, count }))
}
