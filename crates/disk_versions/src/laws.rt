ghost use Rattle.disk_versions.specs.Ranged.{PlacingTells, NoneUnplaced};

use page_images::header_laws;
use page_versions::version_laws;

/// What is found of all page sets, from the first on, is what is told of the third clause of a sound disk. The function does
/// nothing: it is called where its facts are needed.
pub fn placing_laws()
    ensures told { PlacingTells }
    ensures none { NoneUnplaced }
{
    header_laws();
    version_laws();
}
