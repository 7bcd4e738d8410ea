//! The names of the cameras and of the machines.
use crossbar::port::Port;

/// The name of the camera at each input and of the machine at each output, up to 16 of either; empty where it has none.
// No `Option` for a name: it would be taken as empty in the one place where names are printed. Two arrays and no map from
// ports to names: a port would need an order or a hash, and a name a way in that can fail.
#[derive(Clone, Copy, Default)]
pub(crate) struct Names<'a> {
    cameras: [&'a str; 16],
    machines: [&'a str; 16],
}

impl<'a> Names<'a> {
    /// The name at a port, or nothing where it has none.
    pub(crate) fn at(&self, port: Port) -> &'a str {
        let names = match port {
            Port::Input(_) => &self.cameras,
            Port::Output(_) => &self.machines,
        };
        names.get(number(port)).copied().unwrap_or_default()
    }

    /// Gives a port a name; one beyond 15 takes none.
    pub(crate) fn put(&mut self, port: Port, name: &'a str) {
        let names = match port {
            Port::Input(_) => &mut self.cameras,
            Port::Output(_) => &mut self.machines,
        };
        if let Some(place) = names.get_mut(number(port)) {
            *place = name;
        }
    }
}

/// The number of a port on its side.
fn number(port: Port) -> usize {
    match port {
        Port::Input(number) | Port::Output(number) => usize::from(number),
    }
}
