//! Laws of pixels, each as the contract of a function that does nothing.
ghost use Rattle.argb_pixel.specs.Laws.{SixteenAndBack, WorkedDepths, PackedAndRead, ReadAndPacked, WorkedPacked};

/// An 8 bit pixel in 16 bit and back is as it was.
pub fn sixteen_and_back()
    ensures { SixteenAndBack }
{}

/// Examples that were worked by hand, computed by the definition.
pub fn worked_depths()
    ensures { WorkedDepths }
{}

/// The bytes of a pixel are that pixel.
pub fn packed_and_read()
    ensures { PackedAndRead }
{}

/// The bytes of the pixels of a row are the row.
pub fn read_and_packed()
    ensures { ReadAndPacked }
{}

/// The bytes of pixels that were worked by hand, computed by the definition.
pub fn worked_packed()
    ensures { WorkedPacked }
{}
