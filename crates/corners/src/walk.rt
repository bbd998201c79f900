// SPDX-License-Identifier: Apache-2.0

// The corners about a place: the runs of equal coordinates of a sorted hall are walked along each axis.
ghost use Rattle.std.specs.Prelude.{◌≡◌, List, ℕ, ◌+◌, ◌<◌, ◌≤◌};
ghost use Rattle.vectors.specs.declared.Vec3.{Vec3};
ghost use Rattle.corners.specs.Choice.{corner};
ghost use Rattle.corners.specs.Found.{chosen};
ghost use Rattle.corners.specs.declared.Axis.TheVariants.{X, Z};
ghost use Rattle.corners.specs.Axes.{along, channel_at, index_at, run_after};
ghost use Rattle.corners.specs.EqualRuns.{StopsAt, EndsAt, SidesAt};
ghost use Rattle.corners.specs.Walkable.{RowRuns, LayerRuns, RowAt, LayerAt};
ghost use Rattle.corners.specs.Sorted.{RunsIn, CanWalk, StandIn};

use crate::{Axis, Cube, Ends, Layer, SortedSpeakers};
use vectors::Vec3;

impl SortedSpeakers {
    // Where the run that begins at `i` ends. Along a row each speaker is a run.
    fn run_after(&self, axis: Axis, i: usize) -> usize
        requires { i < 12 }
        ensures { result ≡ run_after axis self.now i }
    {
        match axis {
            Axis::X => i + 1,
            Axis::Y => self.layers[i],
            Axis::Z => self.rows[i],
        }
    }

    // The walk over the runs from `a` up to `b`: where the last that is not beyond `v` begins, and where the walk stops. A `while`, since each step is as long as its run.
    // Two numbers, as the tables have the ends: a pair of them, with `RunsIn` as its fact, would be made for each walk, and taken apart in it.
    fn walk(&self, axis: Axis, a: usize, b: usize, v: f32) -> Ends
        requires { RunsIn axis self.now a b }
        ensures { StopsAt (along axis self.now.speakers) (run_after axis self.now) a b v result }
    {
        let mut low = a;
        let mut i = a;
        while i < b && axis.of(self.speakers[i].place) <= v {
            low = i;
            i = self.run_after(axis, i);
        }
        Ends { low, high: i }
    }

    // Where the low and the high end about `v` of the runs from `a` up to `b` begin, each filled by the other.
    fn ends(&self, axis: Axis, a: usize, b: usize, v: f32) -> Ends
        requires { RunsIn axis self.now a b }
        ensures { EndsAt (along axis self.now.speakers) (run_after axis self.now) a b v result }
    {
        let stop = self.walk(axis, a, b, v);
        if stop.high < b {
            stop
        } else {
            Ends {
                high: stop.low,
                ..stop
            }
        }
    }

    // The two sides about `v` of the row from `a` up to `b`; a speaker at `v` itself is both.
    fn sides(&self, a: usize, b: usize, v: f32) -> Ends
        requires { RunsIn X self.now a b }
        ensures { SidesAt (along X self.now.speakers) a b v result }
    {
        let stop = self.walk(Axis::X, a, b, v);
        if stop.high < b && self.speakers[stop.low].place.x != v {
            stop
        } else {
            Ends {
                high: stop.low,
                ..stop
            }
        }
    }

    // The channel of speaker `i`.
    fn channel(&self, i: usize) -> usize
        requires { i < 12 }
        ensures { result ≡ channel_at self.now.speakers i }
    {
        self.speakers[i].channel
    }

    // The channels on the two sides of the row that begins at `a`.
    fn row(&self, a: usize, v: f32) -> Ends
        requires { RowRuns (along X self.now.speakers) (index_at self.now.rows) a }
        ensures { RowAt (along X self.now.speakers) (channel_at self.now.speakers) a (index_at self.now.rows a) v result }
    {
        let sides = self.sides(a, self.rows[a], v);
        Ends {
            low: self.channel(sides.low),
            high: self.channel(sides.high),
        }
    }

    // The corners in the layer that begins at `a`. The hint takes a tenth off `pan`.
    #[inline(always)]
    fn layer(&self, a: usize, place: Vec3) -> Layer
        requires { LayerRuns (along X self.now.speakers) (along Z self.now.speakers) (index_at self.now.layers) (index_at self.now.rows) a }
        ensures { LayerAt (along X self.now.speakers) (along Z self.now.speakers) (channel_at self.now.speakers) a (index_at self.now.layers a) place result }
    {
        let rows = self.ends(Axis::Z, a, self.layers[a], place.z);
        Layer {
            front: self.row(rows.high, place.x),
            rear: self.row(rows.low, place.x),
        }
    }

    // The eight corners about a place.
    #[inline(always)]
    pub fn cube(&self, place: Vec3) -> Cube
        requires { CanWalk self.now }
        ensures { (sp : ℕ → Vec3) (l : List ℕ) → StandIn sp l self.now → chosen result ≡ corner sp l place }
    {
        let layers = self.ends(Axis::Y, 0, self.count, place.y);
        Cube {
            bottom: self.layer(layers.low, place),
            top: self.layer(layers.high, place),
        }
    }
}
