//! Images of small programs that meet all that the laws against squashes ask for: so with these images no list of
//! events squashes a task, and no law is true for want of something that meets its premises.
#![tactic(auto)]

ghost use Rattle.small_images.specs.Rows.{exiting, exit_image, greeting, greeting_image, reading, reading_image, IsMet, IsAlwaysSafe, TaskPrints};

/// An image of the program that exits with 7: a task begins at its call.
pub fn exit_is_safe()
    ensures met { IsMet exiting exit_image 3 }
    ensures safe { IsAlwaysSafe exiting exit_image }
{}

/// An image of a program that prints: a task does the call.
pub fn printing_is_safe()
    ensures met { IsMet greeting greeting_image 9 }
    ensures safe { IsAlwaysSafe greeting greeting_image }
    ensures prints { TaskPrints }
{}

/// An image of a program that loads: the master has a constant in the place of the load.
pub fn loading_is_safe()
    ensures met { IsMet reading reading_image 4 }
    ensures safe { IsAlwaysSafe reading reading_image }
{}
