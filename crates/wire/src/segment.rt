ghost use Rattle.std.specs.Prelude.{◌≡◌};
ghost use Rattle.std.specs.Option.{option_map};
ghost use Rattle.wire.specs.Segment.{numbers_of, lawful_numbers};

use crate::header::Segment;

impl Segment {
    // The numbers of segment `sequence` of `count`; none where 1 <= sequence <= count does not hold.
    pub fn new(reference: u8, count: u8, sequence: u8) -> Option<Segment>
        ensures { option_map numbers_of result ≡ lawful_numbers reference count sequence }
    {
        if sequence < 1 || sequence > count {
            return None;
        }
        Some(Segment {
            reference,
            count,
            sequence,
        })
    }
}
