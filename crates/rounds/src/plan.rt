// What rounds read of a map.

ghost use Rattle.map.specs.Memory.{base};
ghost use Rattle.rounds.specs.Targets.{AreTargets};

// Its open set, the row of the targets, which are the depots that deliver, and its links.
#[derive(Clone, Copy)]
pub struct Plan<'a> {
    pub members: &'a [u64],
    pub targets: &'a [u64],
    pub links: &'a [u64],
    pub ghost are: { AreTargets base.words members.now targets.now },
}
