// The warnings' words.
use messages::say;
use plan::Sources;
use replaying::saying::say_place;
use spots::Place;

// `arborstitch: warning: -D NAME: no file tests or uses this name`
pub fn say_unused(name: &[u8]) {
    say(b"arborstitch: warning: -D ");
    say(name);
    say(b": no file tests or uses this name\n");
}

// `arborstitch: warning: PATH: given by --include, but no file includes it`
pub fn say_not_included(path: &[u8], angled: bool) {
    say(b"arborstitch: warning: ");
    say(path);
    if angled {
        say(b": given by --angle, but no file includes it\n");
        return;
    }
    say(b": given by --include, but no file includes it\n");
}

// That the root `k` is included at `place`.
pub fn say_root(sources: &Sources, k: usize, place: Place) {
    say_place(sources.path(place.file), place.line, 1);
    say(sources.path(k));
    say(
        b" is a root and is included here too: files that only serve includes go by -I or --include\n",
    );
}
