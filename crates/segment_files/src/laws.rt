// The laws of the files that a compaction writes. These functions do nothing: what they promise is the law.
ghost use Rattle.segment_files.specs.Rewritten.{RewrittenFilesAreRead, RewrittenFilesGrow};

/// A file that a compaction wrote is read as the part that it is, and its entries stand where its offsets say.
pub fn rewritten_files_are_read()
    ensures { RewrittenFilesAreRead }
{}

/// More entries stand in more frames behind the others, and the gate alone makes a closed file an open one.
pub fn rewritten_files_grow()
    ensures { RewrittenFilesGrow }
{}
