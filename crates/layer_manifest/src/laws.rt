//! What holds of bytes that are no manifest.
ghost use Rattle.layer_manifest.specs.ManifestFaults.{ManifestFaultsAreFirst};

/// A law: bytes that are no manifest, of either version, are refused at the first item that isn't
/// spelled there or breaks a condition with the items before it, or at the first byte left over.
pub fn manifest_faults_are_first()
    ensures { ManifestFaultsAreFirst }
{}
