//! Laws of the definitions, each as the contract of a function that does nothing.
ghost use Rattle.argb_world.specs.Laws.{PointsTellThePicture, PackedRowsAreThePicture};

/// A frame and what is at each point tell the whole picture.
pub fn points_tell_the_picture()
    ensures { PointsTellThePicture }
{}

/// The packed rows of a picture, from top to bottom, are the bytes of its pixels.
pub fn packed_rows_are_the_picture()
    ensures { PackedRowsAreThePicture }
{}
