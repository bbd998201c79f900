// SPDX-License-Identifier: Apache-2.0

// The speakers of a hall in the order of (y, z, x), and where the layers and the rows among them end.
ghost use Rattle.std.specs.Prelude.{◌≡◌, ℕ, ◌+◌, ◌<◌, ◌≤◌};
ghost use Rattle.corners.specs.Table.{Table};
ghost use Rattle.corners.specs.Axes.{place_among, along, index_at};
ghost use Rattle.corners.specs.SpeakerOrder.{precedes, is_marked, speakers_of, Inserted, InLine, Gathered, run_end, RunEnds};
ghost use Rattle.corners.specs.Sorted.{Sorted};

use crate::{Axis, SortedSpeakers, Speaker};
use vectors::Vec3;

// Whether a speaker at `v` comes before one at `w`. No order of `Vec3` that a derive writes: that would be (x, y, z).
fn precedes(v: Vec3, w: Vec3) -> bool
    ensures { result ≡ precedes v w }
{
    (v.y, v.z, v.x) < (w.y, w.z, w.x)
}

// The channels that were tried so far, in order: a count beside an array, as in `SortedSpeakers`.
#[derive(Clone, Copy)]
struct Line {
    channels: [usize; 12],
    count: usize,
}

impl Line {
    // Channel `k` is put in its place, behind its equals: document 01's "stable order of its own", since the library's stable sort is of the heap.
    fn insert(&mut self, places: &[Vec3; 12], k: usize)
        requires { (self.old.count < 12) × (k < 12) × ((i : ℕ) → i < self.old.count → index_at self.old.channels i < 12) }
        ensures at { Inserted (place_among places.now) (index_at self.old.channels) self.old.count k (index_at self.new.channels) }
        ensures more { self.new.count ≡ self.old.count + 1 }
    {
        let n = self.count;
        self.count += 1;
        for i in (0..n).rev() {
            let other = self.channels[i];
            if !precedes(places[k], places[other]) {
                self.channels[i + 1] = k;
                return;
            }
            self.channels[i + 1] = other;
        }
        self.channels[0] = k;
    }

    // The marked channels.
    fn of(places: &[Vec3; 12], marked: &[bool; 12]) -> Line
        requires { Table (place_among places.now) (speakers_of marked.now) }
        ensures { InLine (place_among places.now) (is_marked marked.now) 12 result.count (index_at result.channels) }
    {
        let mut line = Line {
            channels: [0; 12],
            count: 0,
        };
        for (k, here) in marked.iter().enumerate() {
            if !*here {
                continue;
            }
            line.insert(places, k);
        }
        line
    }

    // The channels with their places.
    fn speakers(&self, places: &[Vec3; 12]) -> [Speaker; 12]
        requires { (self.now.count ≤ 12) × ((i : ℕ) → i < self.now.count → index_at self.now.channels i < 12) }
        ensures { Gathered (place_among places.now) (index_at self.now.channels) self.now.count result }
    {
        let mut speakers = [Speaker {
            channel: 0,
            place: places[0],
        }; 12];
        for i in 0..self.count {
            let channel = self.channels[i];
            speakers[i] = Speaker {
                channel,
                place: places[channel],
            };
        }
        speakers
    }
}

// The end of the run at `j` of equal coordinates that stops at `bound[j]` at the latest, `ends` having those of the later ones.
fn run_end(
    axis: Axis,
    speakers: &[Speaker; 12],
    bound: &[usize; 12],
    ends: &[usize; 12],
    j: usize,
) -> usize
    requires { (j < 12) × (index_at bound.now j ≤ 12) }
    ensures { result ≡ run_end (along axis speakers.now) (index_at bound.now) (index_at ends.now) j }
{
    let i = j + 1;
    if i < bound[j] && axis.of(speakers[i].place) == axis.of(speakers[j].place) {
        ends[i]
    } else {
        i
    }
}

// The ends of the runs of equal coordinates, each within its bound.
fn run_ends(axis: Axis, speakers: &[Speaker; 12], bound: &[usize; 12], n: usize) -> [usize; 12]
    requires { (n ≤ 12) × ((i : ℕ) → i < n → index_at bound.now i ≤ 12) }
    ensures { RunEnds (along axis speakers.now) (index_at bound.now) n (index_at result) }
{
    let mut ends = [0; 12];
    for j in (0..n).rev() {
        ends[j] = run_end(axis, speakers, bound, &ends, j);
    }
    ends
}

impl SortedSpeakers {
    // The marked speakers, channel k standing at `places[k]`. Places and marks are two arrays: a hall's has a place for the bass too, which is unmarked.
    pub fn of(places: &[Vec3; 12], marked: &[bool; 12]) -> SortedSpeakers
        requires { Table (place_among places.now) (speakers_of marked.now) }
        ensures { Sorted (place_among places.now) (speakers_of marked.now) result }
    {
        let line = Line::of(places, marked);
        let speakers = line.speakers(places);
        let count = line.count;
        let bounds = [count; 12];
        let layers = run_ends(Axis::Y, &speakers, &bounds, count);
        let rows = run_ends(Axis::Z, &speakers, &layers, count);
        SortedSpeakers {
            speakers,
            layers,
            rows,
            count,
        }
    }
}
