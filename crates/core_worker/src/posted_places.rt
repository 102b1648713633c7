// What a worker has posted, and what it has still to post.
ghost use Rattle.std.specs.Prelude.{◌≡◌};
ghost use Rattle.std.specs.List.{list_any};
ghost use Rattle.core_worker.specs.OwnPlaces.{is_staged};
ghost use Rattle.core_worker.specs.PostedPlaces.{any_posted};

use crate::choose_item::is_staged;
use crate::types::Place;
use crate::worker::Worker;

fn any_posted(places: &Vec<Place>) -> bool
    ensures { result ≡ any_posted places.now.items }
{
    for place in places {
        if let Place::Posted { .. } = place {
            return true;
        }
    }
    false
}

impl Worker {
    /// Whether a change of it is posted, and not taken back yet.
    pub fn has_posted(&self) -> bool
        ensures { result ≡ any_posted self.now.places.items }
    {
        any_posted(&self.places)
    }

    /// Whether a change stands in a place of it that is not posted yet.
    pub fn has_staged(&self) -> bool
        ensures { result ≡ list_any is_staged self.now.places.items }
    {
        self.places.iter().any(|place| is_staged(place))
    }
}
