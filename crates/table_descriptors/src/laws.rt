//! What holds of bytes that are no descriptor.
ghost use Rattle.table_descriptors.specs.DescriptorFaults.{DescriptorFaultsAreFirst};

/// A law: bytes that are no descriptor are refused at the first field that isn't spelled there or
/// breaks a condition with the fields before it, or at the first byte left over.
pub fn descriptor_faults_are_first()
    ensures { DescriptorFaultsAreFirst }
{}
