// A reader before its first record, and where it stands.
ghost use Rattle.std.specs.Prelude.{◌≡◌, []};
ghost use Rattle.record.specs.Partition.{RecordsPartition};
ghost use Rattle.record.specs.Reads.{Recorded, Continues};

use super::Reader;

impl<'a> Reader<'a> {
    // A reader at the start of the input. The records that it will hand out are those of the input: every input is
    // records and a rest in just one way.
    #[tactic(auto, using(crate::proofs::Readings::continues, crate::proofs::Partitions::partitions))]
    pub fn new(input: &'a [u8]) -> Reader<'a>
        ensures input { result.input.now ≡ input.now }
        ensures place { result.place ≡ 0 }
        ensures recorded { Recorded [] result }
        ensures continues { Continues result }
        ensures partition { RecordsPartition }
    {
        Reader { input, place: 0 }
    }

    // Where the next record begins.
    pub fn place(&self) -> usize
        ensures { result ≡ self.now.place }
    {
        self.place
    }
}
