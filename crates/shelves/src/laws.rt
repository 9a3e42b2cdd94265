// The theorem about the shelves here.
ghost use Rattle.shelves.specs.Lists.{LayersStand};

use rights::form::Form;

// What the slots of tables, pairs and scatters are in terms of lists, at any form.
pub fn layers_stand<F: Form>()
    ensures { LayersStand F }
{}
