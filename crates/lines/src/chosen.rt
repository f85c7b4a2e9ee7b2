// The profile that a setting asks for, or the fault that refuses it.
// The conversion stands here, with the type that it converts.

ghost use Rattle.std.specs.Prelude.{◌≡◌};
ghost use Rattle.lines.specs.Chosen.{profile_from};
ghost use Rattle.lines.specs.Commands.{listed};

use crate::command::Setting;
use scheme::fault::ProfileFault;
use scheme::profile::Profile;

impl<'a> TryFrom<&'a Setting> for Profile {
    type Error = ProfileFault;

    ghost try_from_gives = { λ s r. r ≡ profile_from (listed s.now) };

    fn try_from(setting: &'a Setting) -> Result<Profile, ProfileFault> {
        let mut profile = Profile::standard();
        let thresholds = setting.thresholds.as_slice();
        profile.set(setting.r, setting.d, setting.t, thresholds)?;
        Ok(profile)
    }
}
