//! Laws of the file format, each as the contract of a function that does nothing.
ghost use Rattle.frame_file.specs.Laws.{ReadsBack, WritesPixels, WritesPackedRows};

/// The pixels of a clip behind the header of its declaration are read as these pixels, and no other bytes with the same
/// first frame are read as them.
pub fn files_are_read_back()
    ensures { ReadsBack }
{}

/// A picture is written as the bytes of its pixels, its rows from top to bottom, each from left to right.
pub fn pictures_are_their_pixels()
    ensures { WritesPixels }
{}

/// A picture is written as the bytes of all its pixels, which are its packed rows from top to bottom.
pub fn pictures_are_their_packed_rows()
    ensures { WritesPackedRows }
{}
