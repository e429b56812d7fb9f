//! Laws of the definitions, each on a function that does nothing.
ghost use Rattle.ssim_records.specs.SetFaults.{OneFirstFault};
ghost use Rattle.ssim_records.specs.SetText.{OneCut, OneDataSet};

/// No bytes can be cut into records in two ways, none are two data sets, and none have two first faults.
pub fn data_sets_are_unique()
    ensures cut { OneCut }
    ensures set { OneDataSet }
    ensures fault { OneFirstFault }
{}
