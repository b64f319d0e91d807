// A file that was found to be a part of a log.
ghost use Rattle.std.specs.Prelude.{◌≤◌};
ghost use Rattle.segment_files.specs.Contents.{IsInBounds};

use disk_model::FileId;
use segment_files::Part;

/// A file whose gate is open.
#[derive(Drop)]
pub struct Opened {
    pub id: FileId,
    pub part: Part,
    ghost base_first: { 1 ≤ id.base },
    ghost base_last: { id.base ≤ 281474976710655 },
    ghost generation_first: { 1 ≤ id.generation },
    ghost generation_last: { id.generation ≤ 281474976710655 },
    ghost bounds: { IsInBounds id part },
}
