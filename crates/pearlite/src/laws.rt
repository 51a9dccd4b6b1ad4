//! What holds of every term.
ghost use Rattle.pearlite.specs.Asked.{ATermIsThere, EachPartIsThere, WhatIsAskedIsFound};

/// In each line of a term of which something is made, the parts that its action asks for are there, in this order, and no
/// part of another family. So what is made of it is never what stands for a part that is missing.
pub fn each_part_is_there()
    ensures lines { EachPartIsThere }
    ensures term { ATermIsThere }
    ensures found { WhatIsAskedIsFound }
{}
